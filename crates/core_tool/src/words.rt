ghost use Rattle.std.specs.Prelude.{◌≡◌, IfSome, map, option_map, string_bytes};
ghost use Rattle.core_tool.specs.Words.{HasSpans, form_of, gen_of, is_file_name, rules_of, run_of, seen, words_of};

use crate::options::Options;

/// What the words of a call ask for.
#[derive(Debug, Drop)]
pub enum Form<'a> {
    /// Write the core of the configuration of this name.
    Gen {
        name: &'a str,
    },
    /// Run the core of a configuration over the image in a file.
    Run {
        config: &'a str,
        image: &'a str,
        options: Options,
    },
    /// Try the rules of acceptance on the configuration of this name.
    Rules {
        name: &'a str,
    },
}

impl<'a> Form<'a> {
    /// The form of the words, without the program's name. No other words are a call.
    pub fn of(words: &'a Vec<String>) -> Option<Form<'a>>
        ensures form { option_map seen result ≡ form_of (words_of words.now) }
        ensures spans { IfSome result (λ f. HasSpans f) }
    {
        match words.as_slice() {
            [] => None,
            [command, words @ ..] => {
                if command.as_str() == "gen" {
                    Form::of_gen(words)
                } else if command.as_str() == "run" {
                    Form::of_run(words)
                } else if command.as_str() == "rules" {
                    Form::of_rules(words)
                } else {
                    None
                }
            }
        }
    }

    /// The form of the words behind `gen`.
    fn of_gen(words: &'a [String]) -> Option<Form<'a>>
        ensures form { option_map seen result ≡ gen_of (map string_bytes words.now) }
        ensures spans { IfSome result (λ f. HasSpans f) }
    {
        match words {
            [name] if is_name(name.as_str()) => Some(Form::Gen {
                name: name.as_str(),
            }),
            _ => None,
        }
    }

    /// The form of the words behind `run`.
    fn of_run(words: &'a [String]) -> Option<Form<'a>>
        ensures form { option_map seen result ≡ run_of (map string_bytes words.now) }
        ensures spans { IfSome result (λ f. HasSpans f) }
    {
        match words {
            [config, image, words @ ..] if is_name(config.as_str()) && is_name(image.as_str()) => {
                let options = Options::of(words)?;
                Some(Form::Run {
                    config: config.as_str(),
                    image: image.as_str(),
                    options,
                })
            }
            _ => None,
        }
    }

    /// The form of the words behind `rules`.
    fn of_rules(words: &'a [String]) -> Option<Form<'a>>
        ensures form { option_map seen result ≡ rules_of (map string_bytes words.now) }
        ensures spans { IfSome result (λ f. HasSpans f) }
    {
        match words {
            [name] if is_name(name.as_str()) => Some(Form::Rules {
                name: name.as_str(),
            }),
            _ => None,
        }
    }
}

/// Whether a word is the name of a file: it is not empty and does not begin with `-`.
fn is_name(word: &str) -> bool
    ensures { result ≡ is_file_name word.now }
{
    match word.as_bytes().first() {
        Some(&byte) => byte != b'-',
        None => false,
    }
}
