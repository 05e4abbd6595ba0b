//! What a server is set to: its endpoint's URL, its application, its namespace, its users, and the peers that it calls.
#![tactic(auto)]

mod after_break;
mod door;
mod fault;
mod judging;
mod keys;
mod looking;
mod password;
mod peers;
mod place;
mod reading;
mod settings;
mod web;

pub use after_break::AfterBreak;
pub use door::DoorSettings;
pub use fault::SettingsFault;
pub use keys::Section;
pub use password::{PasswordLine, holds_password, password_files};
pub use peers::{PeerCall, Peers};
pub use place::Place;
pub use settings::{Parts, Settings};
pub use web::WebSettings;
