//! The states of a trade.
use report::state::{Event, State};

fn after(state: State, event: Event) -> State {
    let mut met = state;
    met.meet(event);
    met
}

#[test]
fn states_and_events(rt: HostRuntime) {
    assert_eq!(rt; after(State::Waiting, Event::Due), State::Published);
    assert_eq!(rt; after(State::Waiting, Event::Withdrawn), State::Dropped);
    assert_eq!(rt; after(State::Published, Event::Due), State::Published);
    assert_eq!(rt; after(State::Published, Event::Withdrawn), State::Recalled);
    assert_eq!(rt; after(State::Dropped, Event::Due), State::Dropped);
    assert_eq!(rt; after(State::Recalled, Event::Withdrawn), State::Recalled);
    assert!(rt; State::Waiting.survives() && State::Published.survives());
    assert!(rt; !State::Dropped.survives() && !State::Recalled.survives());
}
