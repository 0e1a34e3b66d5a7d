// A host's buffer of input: what a call did not use goes to the front, and the next piece behind it.
ghost use Rattle.script.specs.Run.{Moved};

// Of the first `have` bytes, moves those that were not used to the front, and says how many they are.
pub fn keep(buf: &mut [u8], used: usize, have: usize) -> usize
    ensures { Moved buf.old used have buf.new result }
{
    let end = have.min(buf.len());
    if end <= used {
        return 0;
    }
    buf.copy_within(used..end, 0);
    end - used
}
