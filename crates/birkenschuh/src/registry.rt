// The port mapper's calls, on a registry that the host lends.
ghost use Rattle.std.specs.Prelude.{◌≡◌, length};
ghost use Rattle.epmd_rules.specs.Registry.{new_of, close_of, entry_at};
ghost use Rattle.epmd_rules.specs.Serve.{request_of};
ghost use Rattle.epmd_state.specs.Bytes.{registry_of, Closes};
ghost use Rattle.birkenschuh.specs.Registry.{Makes, Serves};

use epmd::SIZE;
use epmd_rules::answer::{Numbers, making_number};
use epmd_rules::registration::Registration;

#[unsafe(no_mangle)]
pub extern "C" fn bks_registry_new(r: &mut [u8; SIZE], port: u16, first: u32) -> u32
    ensures { Makes (new_of port first) result r.old r.new }
{
    making_number(epmd::make(r, port, first))
}

// A frame from a connection.
#[unsafe(no_mangle)]
pub extern "C" fn bks_registry_request(
    r: &mut [u8; SIZE],
    connection: u32,
    frame: &[u8],
    out: &mut [u8],
) -> Numbers
    ensures { Serves (request_of (registry_of r.old) connection frame.now (length out.old)) result r.new out.old out.new }
{
    Numbers::from(epmd::request(r, connection, frame, out))
}

// The end of a connection: whether it had a registration.
#[unsafe(no_mangle)]
pub extern "C" fn bks_registry_close(r: &mut [u8; SIZE], connection: u32) -> bool
    ensures { Closes (close_of (registry_of r.old) connection) result r.new }
{
    epmd::close(r, connection)
}

// What a host may see of a registry: a registration, the next creation, the port.
#[unsafe(no_mangle)]
pub extern "C" fn bks_registry_entry(r: &[u8; SIZE], place: u32) -> Registration
    ensures { result ≡ entry_at (registry_of r.now) place }
{
    epmd::entry(r, place as usize)
}

#[unsafe(no_mangle)]
pub extern "C" fn bks_registry_next(r: &[u8; SIZE]) -> u32
    ensures { result ≡ (registry_of r.now).next }
{
    epmd::next(r)
}

#[unsafe(no_mangle)]
pub extern "C" fn bks_registry_port(r: &[u8; SIZE]) -> u16
    ensures { result ≡ (registry_of r.now).port }
{
    epmd::port(r)
}
