// Tests as tables: the calls of a part in order, each with its expected answer.

/// A part of a board whose calls are data. The answers have no postcondition, so that the proof of
/// a test stays small for any number of steps.
pub(crate) trait Part {
    type Call: Copy;

    type Answer: Copy + PartialEq;

    /// The answer of a call; `None` if its precondition does not hold.
    fn ask(&mut self, call: Self::Call) -> Option<Self::Answer>;
}

/// A step, and the actual answer.
pub(crate) type Other<A> = (usize, Option<A>);

/// The first step at which a part gives another answer than expected.
pub(crate) fn first_other<P: Part>(
    part: &mut P,
    steps: &[(P::Call, P::Answer)],
) -> Option<Other<P::Answer>> {
    for (step, (call, expected)) in steps.iter().enumerate() {
        let answer = part.ask(*call);
        if answer != Some(*expected) {
            return Some((step, answer));
        }
    }
    None
}
