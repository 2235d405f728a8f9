//! Why a command failed, and where.
ghost use Rattle.std.specs.Prelude.{◌≡◌};
ghost use Rattle.task_file.specs.Failures.{sector_error_bit, error_bit, layer_of, layer_number, fault_of};

use drive::Place;

/// What an attempt at a sector can fail for, by its bit of the error register.
#[derive(Clone, Copy, PartialEq, Eq, Debug)]
pub enum SectorError {
    BadBlock = 0x80,
    Data = 0x40,
    IdNotFound = 0x10,
    NoDataMark = 0x01,
}

/// A failure at a sector: the attempts made at its place count those of this command.
#[derive(Clone, Copy)]
pub struct SectorFailure {
    pub error: SectorError,
    pub place: Place,
    /// From 1 to 9.
    pub attempts: u8,
}

/// Why a command failed.
#[derive(Clone, Copy)]
pub enum Failure {
    Aborted,
    /// Restore did not find cylinder 0.
    TrackZero,
    Sector(SectorFailure),
}

/// The layer that a failure came from, by its number.
#[derive(Clone, Copy)]
pub enum Layer {
    Controller = 1,
    Drive = 2,
    CheckCode = 3,
}

/// The last fault, as plain numbers: the layer (1 controller, 2 drive, 3 check code), the error
/// register, the place, and the attempts made there, at most 9. In layer 1 place and attempts are
/// 0.
#[derive(Clone, Copy, PartialEq, Eq, Debug, Default)]
pub struct Fault {
    pub layer: u8,
    pub error: u8,
    pub cylinder: u16,
    pub head: u8,
    pub number: u8,
    pub attempts: u8,
}

impl SectorError {
    /// Its bit of the error register.
    pub fn bit(self) -> u8
        ensures { result ≡ sector_error_bit self }
    {
        self as u8
    }
}

impl From<Layer> for u8 {
    ghost from_gives = { λ layer number. number ≡ layer_number layer };

    // The number of a layer.
    fn from(layer: Layer) -> u8 {
        layer as u8
    }
}

impl Failure {
    /// Its bit of the error register.
    pub fn bit(self) -> u8
        ensures { result ≡ error_bit self }
    {
        match self {
            Failure::Aborted => 0x04,
            Failure::TrackZero => 0x02,
            Failure::Sector(failure) => failure.error.bit(),
        }
    }

    /// The layer that it came from.
    pub fn layer(self) -> Layer
        ensures { result ≡ layer_of self }
    {
        match self {
            Failure::Aborted | Failure::TrackZero => Layer::Controller,
            Failure::Sector(failure) => match failure.error {
                SectorError::Data => Layer::CheckCode,
                _ => Layer::Drive,
            },
        }
    }
}

impl From<Failure> for Fault {
    ghost from_gives = { λ failure fault. fault ≡ fault_of failure };

    // The failure as numbers; where the controller itself failed, place and attempts are 0.
    fn from(failure: Failure) -> Fault {
        let controller = Fault {
            layer: u8::from(failure.layer()),
            error: failure.bit(),
            ..Fault::default()
        };
        match failure {
            Failure::Sector(at_sector) => Fault {
                cylinder: at_sector.place.cylinder,
                head: at_sector.place.head,
                number: at_sector.place.number,
                attempts: at_sector.attempts,
                ..controller
            },
            _ => controller,
        }
    }
}
