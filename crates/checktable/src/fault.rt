// Why a case of the table gives no file.
ghost use Rattle.std.specs.Prelude.{◌≡◌};
ghost use Rattle.checktable.specs.declared.fault.CaseFault.TheVariants.{NoMemory};

use std::alloc::AllocError;

#[derive(Clone, Copy)]
pub enum CaseFault {
    Malformed,
    NoMemory(AllocError),
}

impl From<AllocError> for CaseFault {
    ghost from_gives = { λ error fault. fault ≡ NoMemory error };

    fn from(error: AllocError) -> CaseFault {
        CaseFault::NoMemory(error)
    }
}
