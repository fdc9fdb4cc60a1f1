// What is asked of an automaton, as three functions with two laws.
ghost use Rattle.std.specs.Prelude.{◌≡◌};
ghost use Rattle.book.specs.Questions.{Asks, Keeps, unreachability, emptiness};
ghost use Rattle.book.specs.QuestionLaws.{unreachability_keeps, emptiness_keeps};

pub trait Question: Copy {
    ghost asks: { Self → Asks };

    // Whether a node with this number may stand at a location.
    fn admits(&self, accepting: bool, number: u16) -> bool
        ensures { result ≡ (asks self.now).admits accepting number };

    // Whether a node with this number may lean on one with the next number.
    fn passes(&self, accepting: bool, number: u16, next: u16) -> bool
        ensures { result ≡ (asks self.now).passes accepting number next };

    // How many visits a node with this number leaves at most.
    fn left(&self, number: u16) -> u64
        ensures { result ≡ (asks self.now).left number };

    ghost lawful: { (q : Self) → Keeps (asks q) };
}

// No accepting location is reached.
#[derive(Clone, Copy)]
pub struct Unreachability;

impl Question for Unreachability {
    ghost asks = { λ _. unreachability };

    ghost lawful = { λ _. unreachability_keeps };

    fn admits(&self, accepting: bool, _number: u16) -> bool {
        !accepting
    }

    fn passes(&self, accepting: bool, _number: u16, _next: u16) -> bool {
        !accepting
    }

    fn left(&self, _number: u16) -> u64 {
        0
    }
}

// No run visits accepting locations for ever.
#[derive(Clone, Copy)]
pub struct Emptiness;

impl Question for Emptiness {
    ghost asks = { λ _. emptiness };

    ghost lawful = { λ _. emptiness_keeps };

    fn admits(&self, accepting: bool, number: u16) -> bool {
        !accepting || number > 0
    }

    fn passes(&self, accepting: bool, number: u16, next: u16) -> bool {
        // Two tests, since `next + 1` would not fit at the greatest number.
        if accepting {
            number > next
        } else {
            number >= next
        }
    }

    fn left(&self, number: u16) -> u64 {
        u64::from(number)
    }
}
