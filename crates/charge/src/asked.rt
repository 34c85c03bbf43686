// What the bounds are asked for.
ghost use Rattle.charge.specs.ReadyFile.{Ready};

use paper::Trailer;

// A file with its nodes' counts, and how often a walk is interrupted at most.
#[derive(Clone, Copy)]
pub struct Asked<'a> {
    pub file: &'a [u8],
    pub trailer: Trailer,
    pub counts: &'a [u32],
    pub interruptions: u16,
    pub ghost ready: { Ready file.now trailer counts.now },
}
