// The morning program: answer lines on standard input, one page over them on standard output, a part a line. docs/SCOPE.md, The page.
// It splits lines and copies bytes: what a line counts for is crate page's.
#![tactic(auto)]

mod ahead;
mod rows;
mod serve;
mod tally;
mod telling;
mod turn;

use serve::Morning;
use splitting::serving::serve;
use telling::tell;

fn main(rt: HostRuntime) {
    let mut stdin = rt.stdin();
    let mut morning = Morning::new();
    serve(&mut stdin, &mut morning);
    tell(morning.turn, &morning.page);
}
