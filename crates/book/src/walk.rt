// The walk over the edges of a node, and what it leans on.
ghost use Rattle.std.specs.Prelude.{◌≡◌, ◌≤◌, length};
ghost use Rattle.sheet.specs.Sheets.{edge_of, automaton_of};
ghost use Rattle.book.specs.Calls.{stopped};
ghost use Rattle.book.specs.Covering.{stepped, walked};
ghost use Rattle.book.specs.Marks.{none};

use crate::book::Book;
use crate::cover::Step;
use crate::fault::BookFault;
use crate::follow::follow;
use crate::place::{PLACES, Place};
use crate::question::Question;
use sheet::Edge;
use zone::{Zone, ZoneFault};

// What stops the walk, and at which edge.
#[derive(Clone, Copy)]
pub(crate) enum Stop {
    Uncovered { edge: usize },
    Refused { fault: ZoneFault, edge: usize },
}

impl Stop {
    // The refusal that the stop is at the node in a place.
    pub(crate) fn at(self, place: u8, marked: bool) -> BookFault
        ensures { result ≡ stopped place marked self }
    {
        match self {
            Stop::Uncovered { edge } if marked => BookFault::MarkedUncovered { place, edge },
            Stop::Uncovered { edge } => BookFault::Uncovered { place, edge },
            Stop::Refused { fault, edge } => BookFault::Zone { fault, place, edge },
        }
    }
}

impl<Z: Zone, Q: Question> Book<Z, Q> {
    // The step along an edge from the node: none where the edge is from another location or leads to an empty zone.
    fn step_along(&self, node: &Place<Z::Row>, edge: &Edge) -> Result<Option<Step<Z>>, ZoneFault>
        ensures { result ≡ stepped Z.calls (automaton_of self.now.sheet) node.now (edge_of edge.now) }
    {
        if edge.source() != node.location {
            return Ok(None);
        }
        let zone = follow(&self.sheet, &Z::from_row(&node.zone), edge)?;
        if zone.is_empty() {
            return Ok(None);
        }
        Ok(Some(Step {
            accepting: self.sheet.is_accepting(node.location),
            number: node.number,
            target: edge.target(),
            zone,
        }))
    }

    // What a node leans on: for each edge the lowest place that covers the step along it. Both loops are left at the first edge that has no cover or that a zone refuses, by the `break` that yields it: the form that the project asks for.
    pub(crate) fn walk(
        &self,
        node: &Place<Z::Row>,
        places: &[Place<Z::Row>],
    ) -> Result<[bool; PLACES], Stop>
        requires { length places.now ≤ 64 }
        ensures { result ≡ walked Z.calls (Q.asks self.now.question) (automaton_of self.now.sheet) node.now places.now 0 (automaton_of self.now.sheet).edges none }
    {
        let mut leans = [false; PLACES];
        let mut edges = self.sheet.edges().iter().enumerate();
        'edges: loop {
            let Some((i, edge)) = edges.next() else {
                break 'edges Ok(leans);
            };
            let step = match self.step_along(node, edge) {
                Ok(Some(step)) => step,
                Ok(None) => continue 'edges,
                Err(fault) => break 'edges Err(Stop::Refused { fault, edge: i }),
            };
            let mut others = places.iter().enumerate();
            let cover = 'places: loop {
                let Some((j, place)) = others.next() else {
                    break 'edges Err(Stop::Uncovered { edge: i });
                };
                if self.covers(&step, place) {
                    break 'places j;
                }
            };
            leans[cover] = true;
        }
    }
}
