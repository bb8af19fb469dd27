// Tables laid out by hand: rules that reach themselves and weights; then which words are laid out.
#![tactic(auto)]

mod form;
mod printing;
mod reach;

fn main(rt: HostRuntime) {
    let out = rt.stdout();
    reach::small_tables(out);
    form::words_changed(out);
}
