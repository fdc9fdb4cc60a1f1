// The zone that an edge leads to from a node's zone.
ghost use Rattle.std.specs.Prelude.{◌≡◌};
ghost use Rattle.sheet.specs.Sheets.{edge_of, automaton_of};
ghost use Rattle.book.specs.Following.{constraints_of, all_constrained, limited, all_reset, followed};

use sheet::{Atom, Edge, Relation, Sheet};
use zone::{Constraint, Zone, ZoneFault};

// The zone under one atom; = is ≤, then ≥.
fn under_atom<Z: Zone>(zone: &Z, atom: Atom) -> Result<Z, ZoneFault>
    ensures { result ≡ all_constrained Z.calls zone.now (constraints_of atom) }
{
    let constant = i32::from(atom.constant);
    let upper = Constraint {
        i: atom.clock,
        j: 0,
        strict: false,
        constant,
    };
    let lower = Constraint {
        i: 0,
        j: atom.clock,
        strict: false,
        constant: -constant,
    };
    match atom.relation {
        Relation::Less => zone.constrain(Constraint {
            strict: true,
            ..upper
        }),
        Relation::AtMost => zone.constrain(upper),
        Relation::Equal => zone.constrain(upper)?.constrain(lower),
        Relation::AtLeast => zone.constrain(lower),
        Relation::Greater => zone.constrain(Constraint {
            strict: true,
            ..lower
        }),
    }
}

// The zone under a list of atoms, in their order. A loop: with `try_fold`, the proof needs a lemma where the loop's invariant is enough.
fn under_atoms<Z: Zone>(zone: Z, atoms: &[Atom]) -> Result<Z, ZoneFault>
    ensures { result ≡ limited Z.calls zone atoms.now }
{
    let mut under = zone;
    for atom in atoms {
        under = under_atom(&under, *atom)?;
    }
    Ok(under)
}

// The zone with some clocks set to zero, in their order. A loop for the same reason.
fn with_resets<Z: Zone>(zone: Z, clocks: &[u8]) -> Result<Z, ZoneFault>
    ensures { result ≡ all_reset Z.calls zone clocks.now }
{
    let mut after = zone;
    for clock in clocks {
        after = after.reset(*clock)?;
    }
    Ok(after)
}

// Time passes, the source's limit and the guard hold, clocks are set to zero, and the target's limit holds.
pub(crate) fn follow<Z: Zone>(sheet: &Sheet, zone: &Z, edge: &Edge) -> Result<Z, ZoneFault>
    ensures { result ≡ followed Z.calls (automaton_of sheet.now) zone.now (edge_of edge.now) }
{
    let waited = under_atoms(zone.elapse(), sheet.limit(edge.source()))?;
    let guarded = under_atoms(waited, edge.guard())?;
    let reset = with_resets(guarded, edge.resets())?;
    under_atoms(reset, sheet.limit(edge.target()))
}
