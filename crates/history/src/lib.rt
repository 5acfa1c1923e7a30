// The cabinet's change history: the calls, the types of their answers, and the tables lent to a call that alters none of them.
#![tactic(auto)]

pub use checker::{drain, turn};
pub use cutoff::raise_cutoff;
pub use intake::{take_in, take_in_package, withdraw};
pub use model::{Outcome, Refusal, Standing, Turn};
pub use package_out::package_out;
pub use queries::{current_value, plain_run, standing, start_values, value_as_of};
pub use setup::set_up;
pub use tables::Tables;
