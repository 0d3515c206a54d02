// A node's side of the port mapper: requests written into an output that the host lends, replies read.
ghost use Rattle.std.specs.Prelude.{◌≡◌, length};
ghost use Rattle.epmd_client_rules.specs.Requests.{alive2_writing, port_please2_writing, names_writing};
ghost use Rattle.epmd_client_rules.specs.Replies.{alive2_read, port2_read};
ghost use Rattle.epmd_client_rules.specs.Answers.{alive2_numbers, port2_numbers};
ghost use Rattle.birkenschuh.specs.Client.{Writes, Tells};

use epmd_client_rules::numbers::{Alive2Numbers, NamesNumbers, Port2Numbers};
use epmd_rules::answer::Numbers;

#[unsafe(no_mangle)]
pub extern "C" fn bks_alive2_request(
    port: u16,
    kind: u8,
    protocol: u8,
    highest: u16,
    lowest: u16,
    name: &[u8],
    extra: &[u8],
    out: &mut [u8],
) -> Numbers
    ensures { Writes (alive2_writing port kind protocol highest lowest name.now extra.now (length out.old)) result out.old out.new }
{
    Numbers::from(epmd_client::alive2_request(
        port, kind, protocol, highest, lowest, name, extra, out,
    ))
}

#[unsafe(no_mangle)]
pub extern "C" fn bks_port_please2_request(name: &[u8], out: &mut [u8]) -> Numbers
    ensures { Writes (port_please2_writing name.now (length out.old)) result out.old out.new }
{
    Numbers::from(epmd_client::port_please2_request(name, out))
}

#[unsafe(no_mangle)]
pub extern "C" fn bks_names_request(out: &mut [u8]) -> Numbers
    ensures { Writes (names_writing (length out.old)) result out.old out.new }
{
    Numbers::from(epmd_client::names_request(out))
}

// The reply to ALIVE2_REQ: 118 or 121.
#[unsafe(no_mangle)]
pub extern "C" fn bks_read_alive2(reply: &[u8]) -> Alive2Numbers
    ensures { result ≡ alive2_numbers (alive2_read reply.now) }
{
    Alive2Numbers::from(epmd_client::read_alive2(reply))
}

// The reply to PORT_PLEASE2_REQ: 119.
#[unsafe(no_mangle)]
pub extern "C" fn bks_read_port2(reply: &[u8]) -> Port2Numbers
    ensures { result ≡ port2_numbers (port2_read reply.now) }
{
    Port2Numbers::from(epmd_client::read_port2(reply))
}

// The reply to NAMES_REQ.
#[unsafe(no_mangle)]
pub extern "C" fn bks_read_names(reply: &[u8]) -> NamesNumbers
    ensures { Tells reply.now result }
{
    NamesNumbers::from(epmd_client::read_names(reply))
}
