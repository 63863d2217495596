// Plays a script's commands on the office.
#![tactic(auto)]

pub mod engine;
pub mod lives;
pub mod plays;
pub mod power;
pub mod seats;
pub mod sink;
pub mod stage;

pub use engine::Engine;
pub use plays::Player;
pub use power::Cuts;
pub use sink::Sink;
pub use stage::Stage;
