//! Why a drive refuses a call, and what a format is given.
use thiserror::Error;

/// What a drive that is not ready answers to a step.
#[derive(Clone, Copy, PartialEq, Eq, Debug, Error)]
#[error("the drive is not ready")]
pub struct NotReady;

/// Why a read attempt hands nothing over.
#[derive(Clone, Copy, PartialEq, Eq, Debug, Error)]
pub enum ReadError {
    #[error("the drive is not ready")]
    NotReady,
    #[error("no sector has this ID")]
    NoId,
    #[error("the sector is marked bad")]
    BadBlock,
    #[error("the sector shows no data mark")]
    NoDataMark,
}

/// Why a write attempt writes nothing.
#[derive(Clone, Copy, PartialEq, Eq, Debug, Error)]
pub enum WriteError {
    #[error("the drive is not ready")]
    NotReady,
    #[error("the drive is protected")]
    Protected,
    #[error("no sector has this ID")]
    NoId,
    #[error("the sector is marked bad")]
    BadBlock,
}

/// Why a format is refused.
#[derive(Clone, Copy, PartialEq, Eq, Debug, Error)]
pub enum FormatError {
    #[error("the drive is not ready")]
    NotReady,
    #[error("the drive is protected")]
    Protected,
    #[error("the drive has no such head")]
    BadHead,
    #[error("a track has from 1 to 64 sectors")]
    BadCount,
    #[error("the sectors do not fit on the track")]
    TooLong,
}

/// The number and the bad mark that a format gives a sector.
#[derive(Clone, Copy, PartialEq, Eq, Debug)]
pub struct SectorId {
    pub number: u8,
    pub bad: bool,
}
