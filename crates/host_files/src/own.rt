//! Which hosts are the launcher's own machine.

ghost use Rattle.std.specs.Prelude.{◌≡◌};
ghost use Rattle.std.specs.List.{list_all};
ghost use Rattle.std.specs.Str.{bytes_eq};
ghost use Rattle.host_files.specs.Own.{is_address, is_address_byte, is_own_machine};

fn is_address_byte(byte: u8) -> bool
    ensures { result ≡ is_address_byte byte }
{
    byte.is_ascii_digit() || byte == b'.'
}

/// Whether a name is an address: digits and `.` alone.
fn is_address(name: &[u8]) -> bool
    ensures { result ≡ is_address name.now }
{
    for byte in name {
        if !is_address_byte(*byte) {
            return false;
        }
    }
    true
}

fn is(name: &[u8], other: &[u8]) -> bool
    ensures { result ≡ bytes_eq name.now other.now }
{
    name == other
}

/// Whether a host is the launcher's own machine: by its name, which is the machine's own; or by its address, which the
/// machine has. Addresses of loopback each machine has, so they tell it only of a host that isn't named by its address.
pub fn is_own_machine(name: &[u8], own_name: &[u8], is_loopback: bool, has_address: bool) -> bool
    ensures { result ≡ is_own_machine name.now own_name.now is_loopback has_address }
{
    if is(name, own_name) {
        return true;
    }
    if is_loopback {
        !is_address(name)
    } else {
        has_address
    }
}
