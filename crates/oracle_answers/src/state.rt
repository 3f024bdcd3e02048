// The library's state over a list of calls, each part in the hands of the crate that makes its calls.
use recorded_steps::CoresState;
use records::{Call, Record, Taken};
use simple_map::SimpleMap;
use stage2::Policy;

#[derive(Clone, Copy)]
pub struct State {
    pub policy: Policy,
    pub cores: CoresState,
    pub map: SimpleMap,
}

// Nothing held, and fresh cores.
pub(crate) fn fresh() -> State {
    State {
        policy: Policy::new(),
        cores: CoresState::fresh(0),
        map: SimpleMap::new(),
    }
}

// Each part takes the record, and passes it on if it is about another.
pub(crate) fn take(state: State, recorded: Record, call: Call) -> Taken<State> {
    let of_policy = recorded_calls::policy::take(state.policy, recorded, call);
    let policy = of_policy.state;
    let of_cores = recorded_steps::take(policy, state.cores, of_policy.compared, call);
    let of_map = recorded_calls::map::take(state.map, of_cores.compared, call);
    Taken {
        compared: recorded_calls::values::take(of_map.compared, call),
        state: State {
            policy,
            cores: of_cores.state,
            map: of_map.state,
        },
    }
}
