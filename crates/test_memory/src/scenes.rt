// Runs the scenes in turn.
use crate::stopped::Stopped;
use crate::{boards, crews, events, parts, shared, texts, words};
use std::alloc::Global;
use std::sync::Wait;
use std::test::Fail;
use std::thread::Threads;

#[derive(Clone, Copy, PartialEq, Debug)]
enum Scene {
    Space,
    Queues,
    Timers,
    Board,
    Notices,
    Run,
    Events,
    WordsOpened,
    WordsGathered,
    SharedOpened,
    SharedSettled,
    CallsMadeAgain,
    CallsLeftOut,
    Crew,
    Script,
    Trace,
    CrewScript,
    CrewOnBoard,
    Image,
}

const SCENES: [Scene; 19] = [
    Scene::Space,
    Scene::Queues,
    Scene::Timers,
    Scene::Board,
    Scene::Notices,
    Scene::Run,
    Scene::Events,
    Scene::WordsOpened,
    Scene::WordsGathered,
    Scene::SharedOpened,
    Scene::SharedSettled,
    Scene::CallsMadeAgain,
    Scene::CallsLeftOut,
    Scene::Crew,
    Scene::Script,
    Scene::Trace,
    Scene::CrewScript,
    Scene::CrewOnBoard,
    Scene::Image,
];

/// Plays a scene, in which all calls must return what they return without a failure. Returns
/// whether an allocation failed in a call that the scene itself repeated or left out.
fn play<R: Threads + Wait + Sync>(rt: &R, alloc: Global, scene: Scene) -> Result<bool, Stopped> {
    match scene {
        Scene::Space => parts::space(alloc),
        Scene::Queues => parts::queues(alloc),
        Scene::Timers => parts::timers(alloc),
        Scene::Board => boards::opened(alloc),
        Scene::Notices => boards::notices(alloc),
        Scene::Run => boards::ran(alloc),
        Scene::Events => events::performed(alloc),
        Scene::WordsOpened => words::opened(alloc),
        Scene::WordsGathered => words::gathered(alloc),
        Scene::SharedOpened => shared::opened(alloc),
        Scene::SharedSettled => shared::settled(alloc),
        Scene::CallsMadeAgain => shared::called(rt, alloc, true),
        Scene::CallsLeftOut => shared::called(rt, alloc, false),
        Scene::Crew => crews::crewed(rt, alloc),
        Scene::Script => texts::replayed(alloc),
        Scene::Trace => texts::checked(alloc),
        Scene::CrewScript => texts::crewed(rt, alloc),
        Scene::CrewOnBoard => texts::crewed_on(rt, alloc),
        Scene::Image => texts::saved(alloc),
    }
}

/// Plays a scene, and again if an allocation failed. Returns whether one failed.
fn played<R: Threads + Wait + Sync>(rt: &R, alloc: Global, scene: Scene) -> Result<bool, Stopped> {
    match play(rt, alloc, scene) {
        // A thread whose allocation fails is not started.
        Err(Stopped::Memory | Stopped::NoThread) => match play(rt, alloc, scene)? {
            false => Ok(true),
            true => Err(Stopped::Otherwise),
        },
        other => other,
    }
}

#[test]
fn each_scene_is_played_to_its_end(rt: HostRuntime) -> Result<(), Fail> {
    for scene in SCENES {
        let played = played(&rt, rt.alloc(), scene);
        if played == Ok(true) {
            println!(rt; "an allocation failed")?;
        }
        assert!(rt; played.is_ok(), "{scene:?}: {played:?}");
    }
    Ok(())
}
