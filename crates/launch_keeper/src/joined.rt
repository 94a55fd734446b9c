//! The outputs of the ranks as one text.

ghost use Rattle.std.specs.Prelude.{◌≡◌, [], ◌∷◌, ◌++◌, map, true, IfOk, OnOk};
ghost use Rattle.launch_keeper.specs.JoinedOutput.{mark_of, marked, join_outputs, IsJoined};

use std::alloc::{AllocError, Global};

/// What stands before each line of a rank: `[r] `.
fn mark_of(alloc: Global, rank: usize) -> Result<Vec<u8>, AllocError>
    ensures { IfOk result (λ mark. mark.items ≡ mark_of rank) }
{
    let mark = format!(in alloc; "[{rank}] ")?;
    Ok(mark.into_bytes())
}

/// Adds the output of a rank, each line with the mark before it and an end of line after it.
fn push_marked(text: &mut Vec<u8>, mark: &[u8], output: &[u8]) -> Result<(), AllocError>
    ensures { OnOk result (text.new.items ≡ text.old.items ++ marked mark.now true output.now) }
{
    let mut fresh = true;
    for byte in output {
        if fresh {
            text.extend_from_slice(mark)?;
        }
        text.push(*byte)?;
        fresh = *byte == b'\n';
    }
    if !fresh {
        text.push(b'\n')?;
    }
    Ok(())
}

/// The outputs of the ranks, which stand in rank order, as one text: by rising rank, each line of
/// the rank's output with `[r] ` before it and an end of line after it. A last line without its end
/// gets one, and an empty output gives no line.
///
/// Only want of memory is an error.
pub fn join(alloc: Global, outputs: &[Vec<u8>]) -> Result<Vec<u8>, AllocError>
    // The text is that of the lines of the outputs, in order.
    ensures lines { IfOk result
        (λ text. IsJoined 0 (map (λ output. output.items) outputs.now) text.items) }
    // There is one such text.
    ensures exact { IfOk result
        (λ text. text.items ≡ join_outputs 0 (map (λ output. output.items) outputs.now)) }
{
    join_outputs(alloc, outputs)
}

/// What `join` gives of one rank's output: the text of all ranks is that of rank 0, that of rank 1
/// behind it, and so on. Only want of memory is an error.
pub fn join_from(alloc: Global, rank: usize, output: &[u8]) -> Result<Vec<u8>, AllocError>
    ensures { IfOk result (λ text. text.items ≡ join_outputs rank (output.now ∷ [])) }
{
    let mut text = Vec::new(alloc);
    push_marked(&mut text, &mark_of(alloc, rank)?, output)?;
    Ok(text)
}

fn join_outputs(alloc: Global, outputs: &[Vec<u8>]) -> Result<Vec<u8>, AllocError>
    ensures { IfOk result
        (λ text. text.items ≡ join_outputs 0 (map (λ output. output.items) outputs.now)) }
{
    let mut text = Vec::new(alloc);
    for (rank, output) in outputs.iter().enumerate() {
        let mark = mark_of(alloc, rank)?;
        push_marked(&mut text, &mark, output)?;
    }
    Ok(text)
}
