// The calls for C and Rust, as a static library: each is the one of the crate `wegbaro`.
#![tactic(auto)]

ghost use Rattle.std.specs.Prelude.{◌≡◌};
ghost use Rattle.trails.specs.Call.{route_call};
ghost use Rattle.codes.specs.Code.{CheckCoded, CommandCoded, RouteCoded};
ghost use Rattle.codes.specs.Version.{library_version};

// The check call.
#[unsafe(no_mangle)]
pub extern "C" fn wegbaro_check(store: &[u8], n: usize, work: &mut [u8]) -> u64
    ensures { CheckCoded store.now n work.old result work.new }
{
    wegbaro::wegbaro_check(store, n, work)
}

// The command call.
#[unsafe(no_mangle)]
pub extern "C" fn wegbaro_command(store: &mut [u8], n: usize, work: &mut [u8], given: &[u8]) -> u64
    ensures { CommandCoded store.old n work.old given.now result store.new work.new }
{
    wegbaro::wegbaro_command(store, n, work, given)
}

// The route call.
#[unsafe(no_mangle)]
pub extern "C" fn wegbaro_route(
    store: &[u8],
    n: usize,
    work: &mut [u8],
    start: usize,
    end: usize,
    list: &mut [u16],
) -> u64
    ensures { RouteCoded (route_call store.now n work.old start end list.old) result list.new work.new }
{
    wegbaro::wegbaro_route(store, n, work, start, end, list)
}

// The version of the library.
#[unsafe(no_mangle)]
pub extern "C" fn wegbaro_version() -> u64
    ensures { result ≡ library_version }
{
    wegbaro::wegbaro_version()
}
