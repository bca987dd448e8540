// farmday: reads the lines of a day from standard input and prints their answers.
#![tactic(auto)]

fn main(rt: HostRuntime) {
    feeding::answer_stream(&rt, &mut rt.stdin(), &mut rt.stdout());
}
