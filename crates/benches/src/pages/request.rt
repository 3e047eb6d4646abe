//! The request that is run.
use script_tree::request::{Parameters, Request};
use script_tree::text::Text;
use std::alloc::{AllocError, Global};

/// A request for the page of this path. There is no room for a longer path than a request may have.
pub fn request_of(alloc: Global, path: &str) -> Result<Request, AllocError> {
    let method = text_of(alloc, "GET")?;
    let path = text_of(alloc, path)?;
    let body = Text::from_vec(Vec::new(alloc));
    Request::new(method, path, Parameters::new(alloc), body).ok_or(AllocError)
}

/// The text of a word.
fn text_of(alloc: Global, word: &str) -> Result<Text, AllocError> {
    Ok(Text::from_vec(word.as_bytes().to_vec(alloc)?))
}
