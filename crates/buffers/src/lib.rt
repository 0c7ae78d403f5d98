// Send buffers: what waits on a controller, frame by frame, in sending order.
#![tactic(auto)]

pub mod buffer;
pub mod instance;
pub mod joint;
mod places;
pub mod pool;
pub mod ranked_buffer;
pub mod runs;
