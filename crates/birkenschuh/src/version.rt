// What a host compares with its header before it makes a state: a library of another version would
// write past the end of it.
ghost use Rattle.std.specs.Prelude.{◌≡◌};
ghost use Rattle.epmd_state.specs.Bytes.{size};
ghost use Rattle.handshake_state.specs.Bytes.{state_size};
ghost use Rattle.birkenschuh.specs.Version.{abi};

#[unsafe(no_mangle)]
pub extern "C" fn bks_abi() -> u32
    ensures { result ≡ abi }
{
    2
}

#[unsafe(no_mangle)]
pub extern "C" fn bks_registry_size() -> usize
    ensures { result ≡ size }
{
    epmd::SIZE
}

#[unsafe(no_mangle)]
pub extern "C" fn bks_endpoint_size() -> usize
    ensures { result ≡ state_size }
{
    handshake_state::SIZE
}
