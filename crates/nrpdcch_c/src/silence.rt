//! What is told of a watch at which nothing is heard.
ghost use Rattle.std.specs.Prelude.{◌≡◌};
ghost use Rattle.nrpdcch_c.specs.Silences.{flaw_number, silence_at, silence_by, silence_left, silence_of};

use crate::stop::Stop;
use dci_codec::Silence;
use dmrs_qpsk::Flaw;

/// Why nothing is heard: numbers that the stage doesn't need are 0.
#[repr(C)]
#[derive(Clone, Copy)]
pub struct NrpdcchSilence {
    /// The number of the stage of hearing that fails first.
    pub stage: u32,
    /// The symbol of a bad place.
    pub symbol: u32,
    /// Its subcarrier.
    pub subcarrier: u32,
    /// The number of what is wrong there.
    pub flaw: u32,
    /// The place of a bit, or of a byte of the grid.
    pub at: usize,
}

/// The number of what is wrong with a place.
fn flaw_number(flaw: Flaw) -> u32
    ensures { result ≡ flaw_number flaw }
{
    match flaw {
        Flaw::Empty => 1,
        Flaw::Reference => 2,
    }
}

/// A stage that needs no more than a place.
fn silence_at(stage: u32, at: usize) -> NrpdcchSilence
    ensures { result ≡ silence_at stage at }
{
    NrpdcchSilence {
        stage,
        symbol: 0,
        subcarrier: 0,
        flaw: 0,
        at,
    }
}

/// The stage of hearing that fails first.
fn silence_by(silence: Silence) -> NrpdcchSilence
    ensures { result ≡ silence_by silence }
{
    match silence {
        Silence::Spot(bad) => NrpdcchSilence {
            stage: 1,
            symbol: u32::from(bad.symbol),
            subcarrier: u32::from(bad.subcarrier),
            flaw: flaw_number(bad.flaw),
            at: 0,
        },
        Silence::Repeat { at } => silence_at(2, at),
        Silence::Code => silence_at(3, 0),
        Silence::Crc => silence_at(4, 0),
        Silence::Format => silence_at(5, 0),
    }
}

/// What is told of a refusal.
fn silence_of(stop: &Stop) -> NrpdcchSilence
    ensures { result ≡ silence_of stop.now }
{
    match stop {
        Stop::Silent(silence) => silence_by(*silence),
        Stop::GridByte { at } | Stop::GridText { at } => silence_at(0, *at),
        Stop::Small { needed } => silence_at(0, *needed),
        _ => silence_at(0, 0),
    }
}

/// Tells of a refusal, where there is one.
pub(crate) fn put_silence<T>(answer: &Result<T, Stop>, silence: &mut NrpdcchSilence)
    ensures { silence.new ≡ silence_left answer.now silence.old }
{
    if let Err(stop) = answer {
        *silence = silence_of(stop);
    }
}
