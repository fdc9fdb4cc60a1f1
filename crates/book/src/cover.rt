// Whether a place covers a step from a node.
ghost use Rattle.std.specs.Prelude.{◌≡◌};
ghost use Rattle.book.specs.Covering.{covers};

use crate::book::Book;
use crate::place::Place;
use crate::question::Question;
use zone::Zone;

// A step from a node along an edge: the node's number, whether its location is accepting, the edge's target, and the zone that it leads to.
#[derive(Clone, Copy)]
pub(crate) struct Step<Z> {
    pub(crate) accepting: bool,
    pub(crate) number: u16,
    pub(crate) target: u8,
    pub(crate) zone: Z,
}

impl<Z: Zone, Q: Question> Book<Z, Q> {
    // Whether a place covers a step. The zones are compared last, since that costs most.
    pub(crate) fn covers(&self, step: &Step<Z>, place: &Place<Z::Row>) -> bool
        ensures { result ≡ covers Z.calls (Q.asks self.now.question) step.now.accepting step.now.number step.now.target step.now.zone place.now }
    {
        place.standing
            && place.location == step.target
            && self
                .question
                .passes(step.accepting, step.number, place.number)
            && step.zone.is_within(&Z::from_row(&place.zone))
    }
}
