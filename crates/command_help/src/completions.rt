//! What a shell needs to complete the words of the command line.

/// A script for bash: `eval "$(sheetdesk completions bash)"`. It knows the verbs, their options,
/// and the packages of a folder by the names of their files.
pub const BASH: &str = "# Completes the words of sheetdesk:  eval \"$(sheetdesk completions bash)\"
_sheetdesk_verbs='init put lend return join part drop apply import status log get explain receipt manifest export holds changes bring map report audit serve tidy rehearse session completions'

# The options of a verb.
_sheetdesk_options() {
    case $1 in
        init) echo --archive --at --frame --quiet ;;
        rehearse) echo --archive --at --frame ;;
        lend) echo --box --zoom --follow --as --at --request --dry-run --quiet ;;
        return|join|part) echo --at --request --dry-run --quiet ;;
        put) echo --type --tms --as --at --request --dry-run --quiet ;;
        drop) echo --yes --at --dry-run --quiet ;;
        tidy) echo --quiet ;;
        status) echo --json --color ;;
        explain) echo --json ;;
        log) echo --from --last --json --color ;;
        export) echo --qgis ;;
        holds) echo --tiles --points --geometry --code --label ;;
        changes) echo --more --at --summary ;;
        bring) echo --more --at --dry-run --summary ;;
        map) echo --zoom --names ;;
        report) echo --names ;;
        serve) echo --log ;;
        session) echo --strict ;;
    esac
    echo --help
}

# The packages of a folder, by the names of their files.
_sheetdesk_packages() {
    local file
    for file in \"$1\"/*.gpkg; do
        [ -e \"$file\" ] && basename \"$file\" .gpkg
    done
}

# What may stand at a place behind the verb, counted from 2.
_sheetdesk_words() {
    local place=$1 verb=$2 folder=$3 word=$4 IFS=$' \\t\\n'
    case $place,$verb in
        2,session) compgen -f -- \"$word\" ;;
        2,completions) compgen -W bash -- \"$word\" ;;
        2,*) compgen -d -- \"$word\" ;;
        3,put|3,lend|3,return|3,log|3,manifest|3,export|3,changes|3,bring|3,report) compgen -W \"$(_sheetdesk_packages \"$folder\")\" -- \"$word\" ;;
        4,put) compgen -W 'tile tiles media mark' -- \"$word\" ;;
        *) compgen -f -- \"$word\" ;;
    esac
}

_sheetdesk() {
    local word=${COMP_WORDS[COMP_CWORD]} verb=${COMP_WORDS[1]} folder=${COMP_WORDS[2]} IFS=$'\\n'
    if [ \"$COMP_CWORD\" -eq 1 ]; then
        COMPREPLY=($(IFS=' '; compgen -W \"$_sheetdesk_verbs --help\" -- \"$word\"))
    elif [[ $word == -* ]]; then
        COMPREPLY=($(IFS=' '; compgen -W \"$(_sheetdesk_options \"$verb\" | tr '\\n' ' ')\" -- \"$word\"))
    else
        COMPREPLY=($(_sheetdesk_words \"$COMP_CWORD\" \"$verb\" \"$folder\" \"$word\"))
    fi
}

complete -o filenames -F _sheetdesk sheetdesk ./sheetdesk
";
