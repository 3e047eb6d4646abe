//! The jobs of the self test: docs/formats.md, "The workload of selftest".
#![tactic(auto)]

ghost use Rattle.std.specs.Prelude.{◌≡◌, IfOk, string_bytes};
ghost use Rattle.std.specs.Fmt.{decimal};
ghost use Rattle.self_test_jobs.specs.Generated.{next, upper_half, path_drawn, parameters_drawn};
ghost use Rattle.self_test_jobs.specs.Generated.{request_drawn, generated};

use basis::Items;
use script_tree::request::{Parameter, Parameters, Request};
use script_tree::text::Text;
use std::alloc::{AllocError, Global};
use trace_format::packed::PackedRequest;
use workload::Requests;

/// By how much a draw multiplies.
pub const MULTIPLIER: u64 = 6_364_136_223_846_793_005;

/// How much a draw adds.
pub const INCREMENT: u64 = 1_442_695_040_888_963_407;

/// The numbers of a draw in digits, as docs/formats.md has them.
pub fn draws_in_digits()
    ensures multiplier { MULTIPLIER ≡ 6364136223846793005 }
    ensures increment { INCREMENT ≡ 1442695040888963407 }
{}

/// The requests of the jobs of a self test with so many jobs.
pub fn generate(alloc: Global, n: u64) -> Result<Requests, AllocError>
    ensures { IfOk result (λ requests. requests ≡ generated n) }
{
    let mut draws = Draws { x: n };
    let mut requests = Vec::new(alloc);
    for _ in 0..n {
        let request = request_drawn(alloc, draws.draw())?;
        requests.push(PackedRequest::pack(alloc, &request)?)?;
    }
    Ok(Items::from_vec(requests))
}

/// Draws, one after another, and the number that the next one goes on from.
#[derive(Drop)]
struct Draws {
    x: u64,
}

impl Draws {
    fn draw(&mut self) -> u32
        ensures next { self.new.x ≡ next self.old.x }
        ensures drawn { result ≡ upper_half self.new.x }
    {
        self.x = self.x.wrapping_mul(MULTIPLIER).wrapping_add(INCREMENT);
        (self.x >> 32) as u32
    }
}

fn request_drawn(alloc: Global, d: u32) -> Result<Request, AllocError>
    ensures { IfOk result (λ request. request ≡ request_drawn d) }
{
    let method = text(alloc, "GET")?;
    let path = text(alloc, path_drawn(d))?;
    let parameters = parameters_drawn(alloc, d)?;
    match Request::new(method, path, parameters, Text::from_vec(Vec::new(alloc))) {
        Some(request) => Ok(request),
        None => unreachable!(),
    }
}

fn path_drawn(d: u32) -> &'static str
    ensures { result.now ≡ path_drawn d }
{
    match d % 4 {
        0 => "/hit",
        1 => "/put",
        2 => "/get",
        _ => "/row",
    }
}

fn parameters_drawn(alloc: Global, d: u32) -> Result<Parameters, AllocError>
    ensures { IfOk result (λ parameters. parameters ≡ parameters_drawn d) }
{
    let mut parameters = Items::new(alloc);
    if d % 4 != 0 {
        let name = text(alloc, "k")?;
        let value = Text::from_vec(format!(in alloc; "{}", d / 4 % 8)?.into_bytes());
        parameters.push(Parameter { name, value })?;
    }
    Ok(parameters)
}

fn text(alloc: Global, bytes: &str) -> Result<Text, AllocError>
    ensures { IfOk result (λ text. text ≡ bytes.now) }
{
    Ok(Text::from_vec(Vec::from_slice(alloc, bytes.as_bytes())?))
}
