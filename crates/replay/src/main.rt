// Replays the recorded task files that its arguments name: crates/replaying tells how.
#![tactic(auto)]

fn main(rt: HostRuntime) {
    replaying::replay_all(&rt);
}
