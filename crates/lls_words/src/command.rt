// The tables of commands and options: what each is called, and which operands and options a command has.
ghost use Rattle.std.specs.Prelude.{◌≡◌, map, Some};
ghost use Rattle.std.specs.List.{list_any};
ghost use Rattle.lls_words.specs.declared.command.Command.{Command};
ghost use Rattle.lls_words.specs.declared.command.Setting.{Setting};
ghost use Rattle.lls_words.specs.Command.{command_name, command_of, operand_count, operand_names, option_name, other_options, rule_options, same_setting, setting_of, takes};

/// A command.
#[derive(Clone, Copy, Debug, PartialEq, Eq)]
pub enum Command {
    Check,
    Search,
    Judge,
    Cnf,
    Sat,
    Lrat,
    Rule,
    Make,
    Least,
    Most,
    Open,
    OpenCheck,
    Trim,
}

/// An option. Those that say a command's rule stand side by side, and so do its others.
#[derive(Clone, Copy, Debug, PartialEq, Eq)]
pub enum Setting {
    Rule,
    Low,
    High,
    Images,
    Formula,
    Edge,
    Symmetry,
    Period,
    Exact,
    Live,
    Differ,
    But,
    As,
    Budget,
    Keep,
    Manner,
    First,
    Crew,
    Turns,
}

// What operands are called, by their places. No option is called so.
static OPERANDS: [&str; 4] = ["operand-1", "operand-2", "operand-3", "operand-4"];

impl Command {
    // The table of commands.
    const ALL: [Command; 13] = [
        Command::Check,
        Command::Search,
        Command::Judge,
        Command::Cnf,
        Command::Sat,
        Command::Lrat,
        Command::Rule,
        Command::Make,
        Command::Least,
        Command::Most,
        Command::Open,
        Command::OpenCheck,
        Command::Trim,
    ];

    // What the command is called.
    fn name(self) -> &'static [u8]
        ensures { result.now ≡ command_name self }
    {
        match self {
            Command::Check => b"check",
            Command::Search => b"search",
            Command::Judge => b"judge",
            Command::Cnf => b"cnf",
            Command::Sat => b"sat",
            Command::Lrat => b"lrat",
            Command::Rule => b"rule",
            Command::Make => b"make",
            Command::Least => b"least",
            Command::Most => b"most",
            Command::Open => b"open",
            Command::OpenCheck => b"opencheck",
            Command::Trim => b"trim",
        }
    }

    /// The command of that name.
    pub fn from_name(name: &[u8]) -> Option<Command>
        ensures command { result ≡ command_of name.now }

        // Each command's name is its own.
        ensures each { (command : Command) → command_of (command_name command) ≡ Some command }
    {
        Command::ALL
            .iter()
            .copied()
            .find(|command| command.name() == name)
    }

    /// What the command's operands are called.
    pub fn operand_names(self) -> &'static [&'static str]
        ensures { map (λ name. name.now) result.now ≡ operand_names self }
    {
        match self {
            Command::Cnf | Command::Rule => &OPERANDS[..1],
            Command::Check
            | Command::Search
            | Command::Judge
            | Command::Sat
            | Command::Lrat
            | Command::Least
            | Command::Most
            | Command::Open
            | Command::OpenCheck => &OPERANDS[..2],
            Command::Trim => &OPERANDS[..3],
            Command::Make => &OPERANDS[..],
        }
    }

    /// How many operands the command has.
    pub fn operand_count(self) -> u64
        ensures { result ≡ operand_count self }
    {
        self.operand_names().len() as u64
    }

    /// The options that say the command's rule, or the two rules that it is between.
    pub fn rule_options(self) -> &'static [Setting]
        ensures { result.now ≡ rule_options self }
    {
        match self {
            Command::Check
            | Command::Search
            | Command::Judge
            | Command::Cnf
            | Command::Least
            | Command::Most => &Setting::ALL[..=Setting::Rule as usize],
            Command::Open | Command::OpenCheck => {
                &Setting::ALL[Setting::Low as usize..=Setting::High as usize]
            }
            Command::Sat | Command::Lrat | Command::Rule | Command::Make | Command::Trim => &[],
        }
    }

    /// The other options that the command takes, in the order of the table.
    pub fn other_options(self) -> &'static [Setting]
        ensures { result.now ≡ other_options self }
    {
        match self {
            Command::Search => &Setting::ALL[Setting::Images as usize..],
            Command::Least | Command::Most => {
                &Setting::ALL[Setting::Images as usize..=Setting::First as usize]
            }
            Command::Open => &Setting::ALL[Setting::Formula as usize..=Setting::First as usize],
            Command::Check | Command::Cnf => {
                &Setting::ALL[Setting::Images as usize..=Setting::As as usize]
            }
            Command::OpenCheck => &Setting::ALL[Setting::Formula as usize..=Setting::As as usize],
            Command::Judge => &Setting::ALL[Setting::Edge as usize..=Setting::As as usize],
            Command::Sat => &Setting::ALL[Setting::Budget as usize..=Setting::First as usize],
            Command::Lrat | Command::Rule | Command::Make | Command::Trim => &[],
        }
    }

    /// Whether the command takes the option.
    pub fn takes(self, setting: Setting) -> bool
        ensures { result ≡ takes self setting }
    {
        is_among(self.rule_options(), setting) || is_among(self.other_options(), setting)
    }
}

// Whether the option is one of these.
fn is_among(options: &[Setting], setting: Setting) -> bool
    ensures { result ≡ list_any (λ option. same_setting option setting) options.now }
{
    options.iter().any(|option| *option == setting)
}

impl Setting {
    // The table of options.
    const ALL: [Setting; 19] = [
        Setting::Rule,
        Setting::Low,
        Setting::High,
        Setting::Images,
        Setting::Formula,
        Setting::Edge,
        Setting::Symmetry,
        Setting::Period,
        Setting::Exact,
        Setting::Live,
        Setting::Differ,
        Setting::But,
        Setting::As,
        Setting::Budget,
        Setting::Keep,
        Setting::Manner,
        Setting::First,
        Setting::Crew,
        Setting::Turns,
    ];

    /// What the option is called, without its two dashes.
    pub fn name(self) -> &'static str
        ensures { result.now ≡ option_name self }
    {
        match self {
            Setting::Rule => "rule",
            Setting::Low => "low",
            Setting::High => "high",
            Setting::Images => "images",
            Setting::Formula => "formula",
            Setting::Edge => "edge",
            Setting::Symmetry => "symmetry",
            Setting::Period => "period",
            Setting::Exact => "exact",
            Setting::Live => "live",
            Setting::Differ => "differ",
            Setting::But => "but",
            Setting::As => "as",
            Setting::Budget => "budget",
            Setting::Keep => "keep",
            Setting::Manner => "manner",
            Setting::First => "first",
            Setting::Crew => "crew",
            Setting::Turns => "turns",
        }
    }

    /// The option of that name, without its two dashes.
    pub fn from_name(name: &[u8]) -> Option<Setting>
        ensures setting { result ≡ setting_of name.now }

        // Each option's name is its own.
        ensures each { (setting : Setting) → setting_of (option_name setting) ≡ Some setting }
    {
        Setting::ALL
            .iter()
            .copied()
            .find(|setting| setting.name().as_bytes() == name)
    }
}
