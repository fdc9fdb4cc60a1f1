// How far a file has come, as far as that decides which records may come next.
ghost use Rattle.std.specs.Prelude.{◌≡◌, true, List, []};
ghost use Rattle.reader.specs.Order.{in_order};
ghost use Rattle.reader.specs.Stages.{stage_of, next_stage, Follows};
ghost use Rattle.reader.specs.declared.kind.Kind.{Kind as AnyKind};

use crate::kind::Kind;

#[derive(Clone, Copy, PartialEq, Eq)]
pub enum Stage {
    // Nothing has come.
    Start,
    // The head has come, and no edge.
    Sheet,
    // An edge has come.
    Edges,
    // The sheet has ended.
    Sealed,
    // The book record has come, and no node.
    Book,
    // A node has come.
    Nodes,
    // The file has ended.
    Ended,
}

impl Stage {
    pub fn new() -> Stage
        ensures { result ≡ stage_of [] }
    {
        Stage::Start
    }

    // The stage after a record of this kind, if one may come.
    pub fn after(self, kind: Kind) -> Option<Stage>
        ensures value { result ≡ next_stage self kind }
        ensures order { (before : List AnyKind) → in_order [] before ≡ true → stage_of before ≡ self → Follows before kind result }
    {
        self.moved(kind)
    }

    // The same without the promise on orders, which follows from this one.
    fn moved(self, kind: Kind) -> Option<Stage>
        ensures { result ≡ next_stage self kind }
    {
        match (self, kind) {
            (Stage::Start, Kind::Head) => Some(Stage::Sheet),
            (Stage::Sheet, Kind::Accepting | Kind::Limit) => Some(Stage::Sheet),
            (Stage::Sheet | Stage::Edges, Kind::Edge) => Some(Stage::Edges),
            (Stage::Edges, Kind::Accepting | Kind::Limit | Kind::Guard) => Some(Stage::Edges),
            (Stage::Sheet | Stage::Edges, Kind::SheetEnd) => Some(Stage::Sealed),
            (Stage::Sealed, Kind::Book) => Some(Stage::Book),
            (Stage::Book | Stage::Nodes, Kind::Node) => Some(Stage::Nodes),
            (Stage::Nodes, Kind::Bound) => Some(Stage::Nodes),
            (Stage::Book | Stage::Nodes, Kind::FileEnd) => Some(Stage::Ended),
            _ => None,
        }
    }
}
