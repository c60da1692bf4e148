// The calls for C and Rust, each answer one 64-bit number, and the version of the library.
#![tactic(auto)]

ghost use Rattle.std.specs.Prelude.{◌≡◌};
ghost use Rattle.trails.specs.Call.{route_call};
ghost use Rattle.codes.specs.Code.{CheckCoded, CommandCoded, RouteCoded};
ghost use Rattle.codes.specs.Version.{library_version};

// The check call.
pub fn wegbaro_check(store: &[u8], n: usize, work: &mut [u8]) -> u64
    ensures { CheckCoded store.now n work.old result work.new }
{
    let a = calls::check(store, n, work);
    codes::check_code(a)
}

// The command call.
pub fn wegbaro_command(store: &mut [u8], n: usize, work: &mut [u8], given: &[u8]) -> u64
    ensures { CommandCoded store.old n work.old given.now result store.new work.new }
{
    let a = calls::command(store, n, work, given);
    codes::command_code(a)
}

// The route call. Its parameters are those that C lends.
pub fn wegbaro_route(
    store: &[u8],
    n: usize,
    work: &mut [u8],
    start: usize,
    end: usize,
    list: &mut [u16],
) -> u64
    ensures { RouteCoded (route_call store.now n work.old start end list.old) result list.new work.new }
{
    let a = route::route(store, n, work, start, end, list);
    codes::route_code(a)
}

// The version of the library.
pub fn wegbaro_version() -> u64
    ensures { result ≡ library_version }
{
    codes::version()
}
