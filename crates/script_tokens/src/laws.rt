ghost use Rattle.script_tokens.specs.Laws.{PlacesRise, TokensAreWithin, EachIsSpelled};

/// The places of tokens rise, and the end stands behind them. So the first fault found is the least.
pub fn places_rise()
    ensures { PlacesRise }
{}

/// A file has no more tokens than bytes, and no fault behind its end.
pub fn tokens_are_within()
    ensures { TokensAreWithin }
{}

/// Each token is one that some bytes spell.
pub fn each_token_is_spelled()
    ensures { EachIsSpelled }
{}
