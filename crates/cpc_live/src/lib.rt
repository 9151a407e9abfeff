//! Where a run gets its polls from: a history that is given beforehand, or a world that is asked, whose answers are recorded.
#![tactic(auto)]

mod feed;
mod history;
mod live;

pub use feed::Feed;
pub use history::History;
pub use live::Live;
