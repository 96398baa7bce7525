// Prints the listing of the batch on standard input, for Gen6. What fails is said on standard error, and the exit status is 0 either way.
#![tactic(auto)]

use chips::Chip;

fn main(rt: HostRuntime) {
    let _ = lister::run(
        "mpl_list6",
        Chip::Gen6,
        &mut rt.stdin(),
        &mut rt.stdout(),
        &mut rt.stderr(),
    );
}
