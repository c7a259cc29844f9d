// The lines of an entry are handed out.
ghost use Rattle.std.specs.Prelude.{◌≡◌, ◌≤◌, [], MatchOption, IsErrOf};
ghost use Rattle.seg_words.specs.Types.{Rose};
ghost use Rattle.session_world.specs.Telling.{HandsOut, HandsOutSince, HasHanded, IsNewest};

use crate::fault::RunFault;
use history_model::HistoryItem;
use history_text::{Entry, line};
use seg_base::Newest;
use std::alloc::Global;
use store_core::StoreFault;
use text_port::{Sink, write_all};

/// Hands out the lines of an entry.
fn hand_entry<K: Sink>(alloc: Global, entry: &Entry, sink: &mut K) -> Result<(), RunFault>
    ensures handed { HasHanded entry.now (K.written sink.old) (K.written sink.new) result }
    ensures write_fault { IsErrOf result RunFault.WriteFault → Rose (K.fault_count sink.old) (K.fault_count sink.new) }
    ensures later { K.fault_count sink.old ≤ K.fault_count sink.new }
{
    match line(alloc, entry) {
        Err(_) => Err(RunFault::Store(StoreFault::NoMemory)),
        Ok(text) => match write_all(sink, text.as_slice()) {
            Ok(()) => Ok(()),
            Err(_) => Err(RunFault::WriteFault),
        },
    }
}

/// The newest item.
fn newest_item(history: &Newest<HistoryItem>) -> Option<&HistoryItem>
    ensures { MatchOption result (history.now ≡ []) (λ i. IsNewest history.now i.now) }
{
    match history.as_slice().last() {
        Some(item) => Some(item),
        None => None,
    }
}

/// Hands out the lines of the newest item, if it is an entry.
fn hand_newest<K: Sink>(
    alloc: Global,
    history: &Newest<HistoryItem>,
    sink: &mut K,
) -> Result<(), RunFault>
    ensures handed { HandsOut history.now (K.written sink.old) (K.written sink.new) result }
    ensures write_fault { IsErrOf result RunFault.WriteFault → Rose (K.fault_count sink.old) (K.fault_count sink.new) }
    ensures later { K.fault_count sink.old ≤ K.fault_count sink.new }
{
    match newest_item(history) {
        Some(HistoryItem::Told { entry, .. }) => hand_entry(alloc, entry, sink),
        _ => Ok(()),
    }
}

/// Hands out the lines of the entry that an event told, where the history was so long before it.
pub fn hand_out<K: Sink>(
    alloc: Global,
    history: &Newest<HistoryItem>,
    before: usize,
    sink: &mut K,
) -> Result<(), RunFault>
    ensures handed { HandsOutSince before history.now (K.written sink.old) (K.written sink.new) result }
    ensures write_fault { IsErrOf result RunFault.WriteFault → Rose (K.fault_count sink.old) (K.fault_count sink.new) }
    ensures later { K.fault_count sink.old ≤ K.fault_count sink.new }
{
    if history.len() == before {
        return Ok(());
    }
    hand_newest(alloc, history, sink)
}
