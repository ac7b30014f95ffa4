//! What the schema compiler, `capnp compile`, asks its plug-ins for: reads the request by generated
//! readers into a model that programs which generate code share, with texts and names to write them.
#![tactic(auto)]

pub mod annotations;
pub mod defaults;
pub mod files;
pub mod groups;
pub mod input;
pub mod model;
pub mod names;
pub mod noted;
pub mod request;
pub mod slots;
pub mod table;
pub mod text;
pub mod types;
