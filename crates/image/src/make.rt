//! The makes of images.
ghost use Rattle.std.specs.Prelude.{ℕ};
ghost use Rattle.drive.specs.Bounds.{measures, Limits};
ghost use Rattle.std.proofs.Common.{lit≤};

/// A make of image, by the most cylinders and heads that an image of it has.
pub trait Make {
    /// The most cylinders of an image of this make.
    const MOST_CYLINDERS: u16;

    ghost MOST_CYLINDERS: { ℕ };

    /// The most heads of an image of this make.
    const MOST_HEADS: u8;

    ghost MOST_HEADS: { ℕ };

    ghost limits: { Limits (measures MOST_CYLINDERS MOST_HEADS) };
}

/// Winchesters: up to 1,024 cylinders and 8 heads.
#[derive(Clone, Copy, Debug)]
pub struct Winchester;

impl Make for Winchester {
    const MOST_CYLINDERS: u16 = drive::MOST_CYLINDERS;

    ghost MOST_CYLINDERS = { 1024 };

    const MOST_HEADS: u8 = drive::MOST_HEADS;

    ghost MOST_HEADS = { 8 };

    ghost limits = { record {
      some_cylinder = lit≤ tt;
      few_cylinders = lit≤ tt;
      some_head = lit≤ tt;
      few_heads = lit≤ tt;
    } };
}

/// Floppies: up to 256 cylinders and 2 heads.
#[derive(Clone, Copy, Debug)]
pub struct Floppy;

impl Make for Floppy {
    const MOST_CYLINDERS: u16 = 256;

    ghost MOST_CYLINDERS = { 256 };

    const MOST_HEADS: u8 = 2;

    ghost MOST_HEADS = { 2 };

    ghost limits = { record {
      some_cylinder = lit≤ tt;
      few_cylinders = lit≤ tt;
      some_head = lit≤ tt;
      few_heads = lit≤ tt;
    } };
}
