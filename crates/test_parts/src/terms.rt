// Numbers at the limits of their ranges, the texts of refusals, and the order of notices.
use board_terms::{
    Message, Notice, Notices, PayloadBytes, Refusal, Sint, TimerId, Vector, Vp, source_number,
};
use std::alloc::AllocError;

#[test]
fn a_number_outside_its_range_is_none(rt: HostRuntime) {
    for number in 0..=u8::MAX {
        let exist = [
            Vp::new(number).is_some(),
            Sint::new(number).is_some(),
            Vector::new(number).is_some(),
            TimerId::from_number(number).is_some(),
        ];
        let expected = [number <= 63, number <= 15, number >= 16, true];
        assert_eq!(rt; exist, expected, "{number}");
    }
}

/// The numbers of the last processor, source and vector, and of the last source and timer of a
/// board.
fn numbers_of_the_last() -> [usize; 5] {
    let (vp, sint) = (Vp::new(63).unwrap(), Sint::new(15).unwrap());
    [
        vp.number() as usize,
        sint.number() as usize,
        Vector::new(255).unwrap().number() as usize,
        source_number(vp, sint),
        TimerId::new(vp, 3).unwrap().number() as usize,
    ]
}

/// The processor and the index of the last timer, and whether there is another one.
fn last_timer() -> (u8, u8, bool) {
    let timer = TimerId::from_number(255).unwrap();
    let another = TimerId::new(timer.vp(), 4).is_some();
    (timer.vp().number(), timer.index(), another)
}

#[test]
fn the_last_of_each_has_the_last_number(rt: HostRuntime) {
    assert_eq!(rt; numbers_of_the_last(), [63, 15, 255, 1023, 255]);
    assert_eq!(rt; last_timer(), (63, 3, false));
}

const REFUSALS: [(u8, Refusal, &str); 17] = [
    (1, Refusal::UnknownPort, "the port is not open"),
    (2, Refusal::PortOpen, "the port is open already"),
    (3, Refusal::WrongKind, "the port is of the other kind"),
    (
        4,
        Refusal::BadTarget,
        "the target or the shape is out of range",
    ),
    (
        5,
        Refusal::BadType,
        "the message type is 0 or has bit 31 set",
    ),
    (6, Refusal::BadFlag, "the flag is not one of the port's"),
    (7, Refusal::SynicOff, "the SynIC of the target is disabled"),
    (8, Refusal::NoBuffers, "the buffers of the port are in use"),
    (9, Refusal::TicketsSpent, "all tickets are spent"),
    (
        10,
        Refusal::ClockBack,
        "the moment lies before the present one",
    ),
    (11, Refusal::OutsideSpace, "the address lies in no page"),
    (12, Refusal::CrossesPage, "the bytes lie in two pages"),
    (13, Refusal::BadLength, "the length is 0 or above 8"),
    (14, Refusal::NoSuchProcessor, "there is no such processor"),
    (
        15,
        Refusal::AlreadySuspended,
        "the processor is suspended already",
    ),
    (16, Refusal::NotSuspended, "the processor is not suspended"),
    (17, Refusal::Elsewhere, "the page is in the caller's memory"),
];

#[test]
fn a_refusal_has_a_number_and_words(rt: HostRuntime) -> Result<(), AllocError> {
    for (number, refusal, words) in &REFUSALS {
        assert_eq!(rt; refusal.number(), *number);
        assert_eq!(rt; format!(in rt.alloc(); "{refusal}")?.as_str(), *words);
    }
    Ok(())
}

#[test]
fn notices_keep_their_order_and_their_room(rt: HostRuntime) -> Result<(), AllocError> {
    // README board_terms: begin
    let (vp, sint) = (Vp::new(3).unwrap(), Sint::new(2).unwrap());
    let sent = [
        Notice::Pending { vp, sint },
        Notice::Expired {
            vp,
            index: 1,
            due: u64::MAX,
        },
    ];
    let mut notices = Notices::open(rt.alloc())?;
    notices.push(sent[0]);
    notices.push(sent[1]);
    assert_eq!(rt; notices.as_slice(), sent.as_slice());
    notices.clear();
    assert!(rt; notices.as_slice().is_empty());
    // README board_terms: end
    Ok(())
}

#[test]
fn a_message_is_named_by_its_ticket(rt: HostRuntime) {
    let post = Message::FromPort {
        ticket: u64::MAX - 1,
        port: 3,
        kind: 1,
        payload: PayloadBytes::new(),
    };
    let expiration = Message::FromTimer {
        ticket: 7,
        timer: TimerId::from_number(2).unwrap(),
        expiration: 20,
    };
    assert_eq!(rt; (post.ticket(), expiration.ticket()), (u64::MAX - 1, 7));
}
