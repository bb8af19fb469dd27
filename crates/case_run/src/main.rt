// Runs on the bench sheet's tables: openings, and grants of every size on right, damaged and forged runs.
#![tactic(auto)]

mod granting;
mod opening;
mod printing;

fn main(rt: HostRuntime) {
    let out = rt.stdout();
    opening::openings(out);
    granting::grants(out);
}
