// Laws of requests and of the texts of answers.
ghost use Rattle.std.specs.Prelude.{◌≡◌, ℕ, List, ◌++◌, codes, decimal, Result};
ghost use Rattle.httparse.specs.Grammar.{RequestHead};
ghost use Rattle.serde_json.specs.Written.{compact_text};
ghost use Rattle.http_parts.specs.Heads.{HasHead};
ghost use Rattle.http_edge.specs.Answers.{amount_data, edge_data};
ghost use Rattle.http_edge.specs.Refusals.{refusal_data};
ghost use Rattle.http_edge.specs.Requests.{Says, SaysBehind};
ghost use Rattle.http_edge.specs.declared.errors.EdgeErr.{EdgeErr};
ghost use Rattle.machine_calls.specs.declared.wish.Wish.{Wish};
ghost use Rattle.machine_calls.specs.declared.refusal.Refusal.TheVariants.{Late, TooFew};

/// The law of heads: where a head of at most 64 header lines and 8192 bytes stands at the front, the bytes say
/// what it and the bytes behind it say, so none of the errors of a head comes then; and they say one thing.
pub fn heads_decide()
    ensures behind { (secret bytes : List ℕ) (h : RequestHead) (rest : List ℕ) (said : Result Wish EdgeErr)
        → HasHead bytes h rest → Says secret bytes said → SaysBehind secret h rest said }
    ensures one { (secret bytes : List ℕ) (h : RequestHead) (rest : List ℕ) (a b : Result Wish EdgeErr)
        → HasHead bytes h rest → Says secret bytes a → Says secret bytes b → a ≡ b }
{}

/// The texts of some bodies, byte for byte, with their keys in byte order.
pub fn bodies_are_spelled()
    ensures settled { (amount : ℕ) → compact_text (amount_data amount (codes "settled"))
        ≡ codes "{\"amount\":" ++ decimal amount ++ codes ",\"result\":\"settled\"}" }
    ensures late { (until : ℕ) → compact_text (refusal_data (Late until))
        ≡ codes "{\"error\":\"late\",\"number\":8,\"until\":" ++ decimal until ++ codes "}" }
    ensures few { (have need : ℕ) → compact_text (refusal_data (TooFew have need))
        ≡ codes "{\"error\":\"too-few\",\"have\":" ++ (decimal have ++ (codes ",\"need\":" ++ (decimal need ++ codes ",\"number\":15}"))) }
    ensures field { compact_text (edge_data (EdgeErr.Field 4)) ≡ codes "{\"error\":\"field\",\"field\":\"order\"}" }
{}
