ghost use Rattle.std.specs.Prelude.{◌≡◌, ◌≢◌, ◌<◌, ◌≤◌, ℕ, [], List, Option, take, length, IfOk, OnOk, OnErr, Ok};
ghost use Rattle.outside.specs.Causes.{Rose};
ghost use Rattle.outside.specs.Taken.{Takes, TakesPrefix};
ghost use Rattle.outside.specs.Views.{SinkView};

use crate::Failed;

/// Where text goes, a piece at a time.
///
/// `shows` is what is seen of the sink: the bytes taken so far, where it tells them, and how many puts failed.
pub trait Sink {
    ghost shows: { Self → SinkView };

    /// Takes the first bytes of the piece, at least one if there is one, and answers how many.
    fn put(&mut self, piece: &[u8]) -> Result<usize, Failed>
        ensures empty { piece.now ≡ [] → result ≡ Ok 0 }
        ensures some { piece.now ≢ [] → IfOk result (λ n. 1 ≤ n) }
        ensures within { IfOk result (λ n. n ≤ length piece.now) }
        ensures takes { IfOk result (λ n. Takes (shows self.old).taken (shows self.new).taken (take n piece.now)) }
        ensures refused { OnErr result ((shows self.new).taken ≡ (shows self.old).taken) }
        ensures failed { OnErr result (Rose (shows self.old).faults (shows self.new).faults) }
        ensures kept { OnOk result ((shows self.new).faults ≡ (shows self.old).faults) }
        ensures later { (shows self.old).faults ≤ (shows self.new).faults };
}

/// Puts the whole piece, by as many calls of `put` as it takes.
///
/// # Errors
///
/// `Failed` where a `put` failed; the sink has then taken the bytes before that.
pub fn put_all<K: Sink>(sink: &mut K, piece: &[u8]) -> Result<(), Failed>
    ensures whole { OnOk result (Takes (K.shows sink.old).taken (K.shows sink.new).taken piece.now) }
    ensures prefix { TakesPrefix (K.shows sink.old).taken (K.shows sink.new).taken piece.now }
    ensures failed { OnErr result (Rose (K.shows sink.old).faults (K.shows sink.new).faults) }
    ensures kept { OnOk result ((K.shows sink.new).faults ≡ (K.shows sink.old).faults) }
    ensures later { (K.shows sink.old).faults ≤ (K.shows sink.new).faults }
{
    let mut at = 0;
    while at < piece.len() {
        at += sink.put(&piece[at..])?;
    }
    Ok(())
}
