// What a zone refuses.
ghost use Rattle.std.specs.Prelude.{◌≡◌};
ghost use Rattle.reader.specs.declared.ground.Layer.TheVariants.{Zone as zone_layer};
ghost use Rattle.zone.specs.Faults.{ground_of};

use reader::{Ground, Layer};

#[derive(Clone, Copy, PartialEq, Eq, Debug)]
pub enum ZoneFault {
    OutOfRange,
    NoDifferences,
    TooWide,
}

impl ZoneFault {
    pub fn ground(self) -> Ground
        ensures { result ≡ ground_of self }
    {
        match self {
            ZoneFault::OutOfRange => Ground::OutOfRange,
            ZoneFault::NoDifferences => Ground::NoDifferences,
            ZoneFault::TooWide => Ground::TooWide,
        }
    }

    pub fn layer(self) -> Layer
        ensures { result ≡ zone_layer }
    {
        Layer::Zone
    }
}
