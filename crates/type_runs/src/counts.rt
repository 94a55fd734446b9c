//! How many items data are (MPI 3.1, 4.1.11).

ghost use Rattle.std.specs.Prelude.{◌≡◌};
ghost use Rattle.type_maps.specs.Packing.{whole_items};

/// How many whole items of so many bytes a number of bytes is: of items without data, none if it is 0.
pub fn whole_items(bytes: u64, size: u64) -> Option<u64>
    ensures { result ≡ whole_items bytes size }
{
    if size == 0 {
        if bytes == 0 { Some(0) } else { None }
    } else if bytes % size == 0 {
        Some(bytes / size)
    } else {
        None
    }
}
