// Copying bytes to a caller's buffer.
ghost use Rattle.c_terms.specs.Rooms.{Fronts};

/// Copies bytes to the front of a buffer, as many as fit.
pub fn put_bytes(bytes: &[u8], room: &mut [u8])
    ensures { Fronts bytes.now room.old room.new }
{
    for at in 0..bytes.len().min(room.len()) {
        room[at] = bytes[at];
    }
}
