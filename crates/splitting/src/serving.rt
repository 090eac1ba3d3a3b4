// A program that answers the lines of its input, read after read to its end. A read that fails is not the end: what was answered by then stays, and
// the line that is held is not answered. What some bytes, the end, a failed read and the whole run come to, each program says for itself.
// No contract can say what a read brings, so of the whole run stated is what its program promises of some input: of the one that the reads brought.
ghost use Rattle.std.specs.Prelude.{◌≡◌, ◌<◌, ◌≤◌, length, take, List, ℕ, ℤ, pos, negsuc, IfOk, OnErr};
ghost use Rattle.splitting.specs.declared.state.State.{State};
ghost use Rattle.splitting.specs.declared.state.State.TheVariants.{Going};
ghost use Rattle.splitting.specs.Serving.{OneRead, Onward};

use crate::state::{State, is_over};
use std::io::{Error, Read, Stdin};

// That it goes on is a clause, here and in the programs' functions beneath, and no type `Going` beside a type `Over`: a change of type would hand a
// server on by value, `fn receive(self, bytes: &[u8]) -> Result<Self, Over>`, with its buffers (sweep's have more than 230,000 bytes) at each read.
pub trait Server {
    // whether it goes on, or how it ended
    ghost state_of: { Self → State };

    // what it comes to after a read, by what that reported, less than 0 a failure, and by what it brought
    ghost after_read: { ℤ → List ℕ → Self → Self → Type 0 };

    // what holds of it as long as it goes on, and what when it is over
    ghost reached: { Self → Type 0 };

    ghost served: { Self → Type 0 };

    fn state(&self) -> State
        ensures { result ≡ state_of self.now };

    // Some bytes that a read brought.
    fn receive(&mut self, bytes: &[u8])
        requires { (state_of self.old ≡ Going) × (0 < length bytes.now) }
        ensures read { (n : ℕ) (buffer : List ℕ) → n ≤ length buffer → bytes.now ≡ take n buffer → after_read (pos n) buffer self.old self.new }
        ensures onward { Onward state_of reached served self.old self.new };

    // The end of the input.
    fn finish(&mut self)
        requires { state_of self.old ≡ Going }
        ensures read { (buffer : List ℕ) → after_read (pos 0) buffer self.old self.new }
        ensures over { state_of self.new ≡ Going → ⊥ }
        ensures onward { Onward state_of reached served self.old self.new };

    // A read that failed.
    fn fail(&mut self)
        requires { state_of self.old ≡ Going }
        ensures read { (k : ℕ) (buffer : List ℕ) → after_read (negsuc k) buffer self.old self.new }
        ensures over { state_of self.new ≡ Going → ⊥ }
        ensures onward { Onward state_of reached served self.old self.new };
}

// What a read reported and brought: a failure, the end, or some bytes.
fn take_read<S: Server>(got: Result<usize, Error>, input: &[u8], server: &mut S)
    requires going { S.state_of server.old ≡ Going }
    requires bound { IfOk got (λ n. n ≤ length input.now) }
    ensures counted { IfOk got (λ n. S.after_read (pos n) input.now server.old server.new) }
    ensures failed { OnErr got ((k : ℕ) → S.after_read (negsuc k) input.now server.old server.new) }
    ensures onward { Onward S.state_of S.reached S.served server.old server.new }
{
    match got {
        Err(_) => server.fail(),
        Ok(0) => server.finish(),
        Ok(n) => server.receive(&input[..n]),
    }
}

fn serve_read<S: Server>(stdin: &mut Stdin, server: &mut S)
    requires { S.state_of server.old ≡ Going }
    ensures read { OneRead S.after_read server.old server.new }
    ensures onward { Onward S.state_of S.reached S.served server.old server.new }
{
    let mut input = io::large_buffer();
    let got = stdin.read(&mut input);
    take_read(got, &input, server)
}

// A proved loop has to end, and nothing says that an input does: the turns are counted up to a number that no run uses up.
pub fn serve<S: Server>(stdin: &mut Stdin, server: &mut S)
    requires going { S.state_of server.old ≡ Going }
    requires reached { S.reached server.old }
    ensures { S.served server.new }
{
    for _ in 0..u64::MAX {
        serve_read(stdin, server);
        if is_over(server.state()) {
            return;
        }
    }
    server.fail()
}
