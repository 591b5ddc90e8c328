// Search labels.
pub use queue_client::label::Label;
