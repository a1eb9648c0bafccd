//! Calls on a script over a script over a store in memory, each printed with its answer.
#![tactic(auto)]

ghost use Rattle.std.specs.Prelude.{◌≡◌, [], ◌∷◌, IfOk};
ghost use Rattle.store.specs.Meaning.{empty, steady_store};
ghost use Rattle.store.specs.Memory.{memory_means};
ghost use Rattle.store.specs.Scripted.{marks_left};
ghost use Rattle.store.specs.declared.marks.Mark.TheVariants.{Fair, Lost, Late};

use std::alloc::{AllocError, Global};
use store::{FaultScript, MOST_BYTES, Mark, MemoryStore, Store};

/// Two scripts over a store with room for four files and 16,389 bytes.
fn piled(heap: Global) -> Result<FaultScript<FaultScript<MemoryStore>>, AllocError>
    ensures memory { IfOk result (λ s. memory_means s.below.below ≡ steady_store (empty 4 16389)) }
    ensures lower { IfOk result (λ s. marks_left s.below ≡ Fair ∷ Late ∷ Lost ∷ []) }
    ensures upper { IfOk result (λ s. marks_left s ≡ Lost ∷ Fair ∷ Late ∷ []) }
{
    let memory = MemoryStore::new(heap, 4, 16389)?;
    let inner = FaultScript::new(memory, &[Mark::Fair, Mark::Late, Mark::Lost]);
    Ok(FaultScript::new(inner, &[Mark::Lost, Mark::Fair, Mark::Late]))
}

/// Puts a text, and prints the answer.
fn put<S: Store>(rt: &HostRuntime, store: &mut S, id: u64, text: &[u8]) -> anyhow::Result<()> {
    let len = text.len();
    let answer = store.put(id, text);
    println!(rt; "put {id}, {len} bytes: {answer:?}")?;
    Ok(())
}

/// Asks for a file's length, and prints the answer.
fn head<S: Store>(rt: &HostRuntime, store: &mut S, id: u64) -> anyhow::Result<()> {
    let answer = store.head(id);
    println!(rt; "head {id}: {answer:?}")?;
    Ok(())
}

/// Reads a file into four bytes, and prints the answer and the buffer.
fn read<S: Store>(rt: &HostRuntime, store: &mut S, id: u64) -> anyhow::Result<()> {
    let mut buffer = [b'.'; 4];
    let answer = store.read(id, &mut buffer);
    println!(rt; "read {id}: {answer:?}, buffer {buffer:?}")?;
    Ok(())
}

/// Marks at two layers: a mark of the lower script is used only by a call that the upper one passes on.
fn marked<S: Store>(rt: &HostRuntime, mut store: S) -> anyhow::Result<()>
where
    S: Drop,
{
    println!(rt; "lost above, then fair, then late over late")?;
    put(rt, &mut store, 0, b"zero")?;
    put(rt, &mut store, 0, b"zero")?;
    put(rt, &mut store, 7, b"x")?;
    println!(rt; "used up above, lost below, then used up")?;
    read(rt, &mut store, 0)?;
    read(rt, &mut store, 0)?;
    head(rt, &mut store, 7)?;
    put(rt, &mut store, 7, b"y")
}

/// The last place and the last byte, from two places and 16,384 bytes left.
fn bounds<S: Store>(rt: &HostRuntime, store: &mut S) -> anyhow::Result<()> {
    println!(rt; "exact bounds")?;
    let longer = [b'a'; 16385];
    put(rt, store, 8, &longer)?;
    put(rt, store, 8, &longer[..MOST_BYTES])?;
    put(rt, store, 9, b"b")?;
    put(rt, store, u64::MAX, b"")?;
    put(rt, store, 10, b"")?;
    put(rt, store, 0, b"")?;
    put(rt, store, 0, &longer)?;
    head(rt, store, 8)?;
    head(rt, store, u64::MAX)?;
    head(rt, store, u64::MAX - 1)?;
    read(rt, store, 8)?;
    read(rt, store, u64::MAX)?;
    read(rt, store, 7)
}

fn main(rt: HostRuntime) -> anyhow::Result<()> {
    let mut store = piled(rt.alloc())?;
    marked(&rt, &mut store)?;
    let mut memory = store.into_inner().into_inner();
    bounds(&rt, &mut memory)
}
