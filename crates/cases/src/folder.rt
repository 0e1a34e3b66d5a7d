// The files of a program's data folder.
ghost use Rattle.std.specs.Prelude.{◌≤◌, length};

use std::fs::File;
use std::io::Read;
use std::rt::Files;

// Reads until `room` is full, the file ends or a read fails, and says how many bytes came. `read_exact` does not say that of a
// file that is shorter, and `read_to_end` wants a Vec where a room is lent.
fn read_full(file: &mut impl Read, room: &mut [u8]) -> usize
    ensures { result ≤ length room.new }
{
    let mut done = 0;
    while done < room.len() {
        let n = file.read(&mut room[done..]).unwrap_or(0);
        if n == 0 {
            return done;
        }
        done += n;
    }
    done
}

// The file of that name, as much of it as there is room for. One that cannot be opened has no byte.
pub fn read<'a>(rt: &impl Files, name: &[u8], room: &'a mut [u8]) -> &'a [u8]
    ensures { length result.now ≤ length room.old }
{
    let n = match File::open(rt, str::from_utf8(name).unwrap_or("")) {
        Ok(mut file) => read_full(&mut file, room),
        Err(_) => 0,
    };
    &room[..n]
}
