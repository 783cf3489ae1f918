//! A law of requests, the contract of a function that does nothing. With it the clauses of
//! `read_request` are exact: a text that is a request is answered by that one, want of memory
//! aside.
ghost use Rattle.request_json.specs.Requests.{IsOneRequest};

/// A text is one request at most.
pub fn is_one_request()
    ensures { IsOneRequest }
{}
