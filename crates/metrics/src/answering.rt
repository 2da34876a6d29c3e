//! What is answered to a request.
use crate::page::PAGE;
use crate::service::MetricsService;
use bytes::Bytes;
use http::{HeaderValue, Request, StatusCode, header};
use http_server::{Response, Service};
use std::alloc::AllocError;
use std::sync::Wait;

/// What the page may do: it runs the script that stands in it, and asks the place that it came from.
const PAGE_POLICY: &str =
    "default-src 'none'; style-src 'unsafe-inline'; script-src 'unsafe-inline'; connect-src 'self'; img-src data:; base-uri 'none'; form-action 'none'; frame-ancestors 'none'";

/// The page at `/`, and the numbers at `/metrics`. Only GET and HEAD are answered so.
impl<'a, R: Wait> Service for MetricsService<'a, R> {
    ghost answers = { λ _ _ _ _. Unit {0} };

    fn call(
        &mut self,
        request: &Request<Bytes>,
        response: &mut Response,
    ) -> Result<(), AllocError> {
        let reads = matches!(request.method().as_str(), "GET" | "HEAD");
        match request.uri().path() {
            "/" if reads => answer_page(response),
            "/metrics" if reads => answer_numbers(response, self.exposition()?),
            "/" | "/metrics" => refuse_method(response),
            _ => refuse_path(response),
        }
    }
}

fn answer_page(response: &mut Response) -> Result<(), AllocError> {
    response.add_header(
        header::CONTENT_TYPE,
        HeaderValue::from_static("text/html; charset=utf-8"),
    )?;
    response.add_header(
        header::CONTENT_SECURITY_POLICY,
        HeaderValue::from_static(PAGE_POLICY),
    )?;
    response.add_header(header::CACHE_CONTROL, HeaderValue::from_static("no-store"))?;
    response.body.push(Bytes::from_static(PAGE.as_bytes()))
}

fn answer_numbers(response: &mut Response, numbers: Vec<u8>) -> Result<(), AllocError> {
    response.add_header(
        header::CONTENT_TYPE,
        HeaderValue::from_static("text/plain; version=0.0.4; charset=utf-8"),
    )?;
    response.add_header(header::CACHE_CONTROL, HeaderValue::from_static("no-store"))?;
    response.body.push(Bytes::from_vec(numbers)?)
}

fn refuse_method(response: &mut Response) -> Result<(), AllocError> {
    response.status = StatusCode::METHOD_NOT_ALLOWED;
    response.add_header(header::ALLOW, HeaderValue::from_static("GET, HEAD"))
}

fn refuse_path(response: &mut Response) -> Result<(), AllocError> {
    response.status = StatusCode::NOT_FOUND;
    response.add_header(
        header::CONTENT_TYPE,
        HeaderValue::from_static("text/plain; charset=utf-8"),
    )?;
    response
        .body
        .push(Bytes::from_static(b"There is / and /metrics.\n"))
}
